// Which bytes are a segment, and with which leaves: definitions only, in specs/.
#![tactic(auto)]
