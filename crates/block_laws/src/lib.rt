// Block lists and their bytes determine each other, of acknowledge blocks with bitmaps and of message blocks laid in a row. Definitions in specs/, theorems in proofs/. No code.
#![tactic(auto)]
