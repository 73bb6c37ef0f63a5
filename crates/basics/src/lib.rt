// What the definitions of every other crate are written in: a choice by a test, an answer or none,
// the number that bytes spell, numbers put into a list, how long a header is, and what it is for a contract to allow one outcome.
#![tactic(auto)]
