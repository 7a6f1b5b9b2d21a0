// No code: the choice and the loops that every definition of the project is written in, with the laws that a loop's proof cites.

#![tactic(auto)]
