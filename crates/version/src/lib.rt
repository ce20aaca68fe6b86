// The version of the library, which its header and its programs tell. Every landing that a user can see raises it.
#![tactic(auto)]

ghost use Rattle.std.specs.Prelude.{◌≡◌};
ghost use Rattle.version.specs.Version.{version_line, version_number};

// The version as one number: 10,000 for the first part, 100 for the second, 1 for the third.
pub fn number() -> u32
    ensures { result ≡ version_number }
{
    20200
}

// The line that a program prints of it.
pub fn line() -> [u8; 14]
    ensures { result ≡ version_line }
{
    *b"gudlemi 2.2.0\n"
}
