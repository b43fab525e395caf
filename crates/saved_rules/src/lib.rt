// What a saved chip is, as definitions in specs/: no type and no function stands here.

#![tactic(auto)]
