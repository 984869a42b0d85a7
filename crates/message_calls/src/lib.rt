// What calls on a table a message stands for, and how many routes they leave: definitions and laws over the width.
#![tactic(auto)]
