// Theorems of written records, over the definitions that the writer, the indexer and the checker are proved to meet: see specs/.
#![tactic(auto)]
