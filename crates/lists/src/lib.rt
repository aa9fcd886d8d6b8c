// Laws of lists that several crates use; the definitions are in specs/.
#![tactic(auto)]
