// Document 01's own examples: tables of what each definition says of them, and the theorems that every row is right.
#![tactic(auto)]
