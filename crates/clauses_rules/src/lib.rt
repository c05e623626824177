// The clauses of a sheet (document 01, "Clauses"), and their one-to-one match with its instances.
#![tactic(auto)]
