#![tactic(auto)]

// Definitions and theorems only: splitting, growing, placing and removing as folds over words, and their tie to the tree. It has no function.
