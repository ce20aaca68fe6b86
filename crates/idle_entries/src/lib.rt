// Idle entries past a line's lanes do not show: laws alone, no functions.
#![tactic(auto)]
