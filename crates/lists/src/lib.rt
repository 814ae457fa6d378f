// What any list of words holds, and the words of rows of bits: specs/. Lists are read in the crate list_steps, and written in word_steps.
#![tactic(auto)]
