// No code of its own: the edges that 01 marks P, as rows of a single table under one theorem, in proofs/Edges.
#![tactic(auto)]
