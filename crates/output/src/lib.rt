// The answer of a call that writes bytes to a lent output: how many, or why none. They are at the front of the output, and the bytes behind
// them stay; a refusal leaves the output as it was. specs/Outcome.antt says so once, for every such call.
#![tactic(auto)]
