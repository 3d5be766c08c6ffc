// No code. specs/ holds choices by a test, as definitions make them, and their laws.
#![tactic(auto)]
