// Self-timed execution of actors and the waits between them: definitions and theorems, no functions.
#![tactic(auto)]
