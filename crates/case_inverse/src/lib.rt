// Definitions and theorems alone: reading and writing a case text undo each other.
#![tactic(auto)]
