// What every crate may say of tests and lists: definitions and theorems alone.
#![tactic(auto)]
