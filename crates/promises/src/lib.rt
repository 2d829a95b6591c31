// Every promise of the library, gathered: specs/Promises.antt. No code.
#![tactic(auto)]
