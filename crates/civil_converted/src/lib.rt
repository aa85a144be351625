// What a conversion of the civil table leaves in its lists: theorems on the contract of `conversion::convert`. There
// is no code here.

#![tactic(auto)]
