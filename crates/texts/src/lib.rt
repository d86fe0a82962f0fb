// The texts of numbers, as mathematics: what they are, how long they are, and that they tell the number.

#![tactic(auto)]
