// What is written over lent memory, as mathematics. All of it is definitions and lemmas.

#![tactic(auto)]
