// Demand 3 and the promise with strangers, worked: feeds that meet every premise, and for each premise one that shows it is needed. Theorems only.
#![tactic(auto)]
