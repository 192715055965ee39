// What a plan means: the theorems that tie the definitions of planning to waits. No code.
#![tactic(auto)]
