// What the small program writes, as definitions in specs/: no type and no function stands here.

#![tactic(auto)]
