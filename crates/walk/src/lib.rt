// What the supply walk is: its definitions and laws, over any grading of the hexes.
#![tactic(auto)]
