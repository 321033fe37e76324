// A cell's own years: what is proved of a book that is opened and then only closed. There is no code.

#![tactic(auto)]
