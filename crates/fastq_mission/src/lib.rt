// The theorems of FASTQ, over the definitions that the functions of the other crates are proved to meet: see specs/.
#![tactic(auto)]
