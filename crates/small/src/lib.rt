// What the small cabinet answers beside the large one. There is no code here: its calls are those of `drawing` and
// `stretching` at `Cabinet::Small`.
#![tactic(auto)]
