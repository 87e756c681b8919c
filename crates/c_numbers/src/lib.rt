// No code: answers as numbers, and a call by a lock mode's number, are in specs/.
#![tactic(auto)]
