// The customer's demands, over the promises of the public calls, and that each promise determines the reply:
// definitions and theorems alone.
#![tactic(auto)]
