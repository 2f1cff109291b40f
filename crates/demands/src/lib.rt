// The demands, over the definitions of `house`: statements in specs/, their theorems in proofs/. There is no code here.
#![tactic(auto)]
