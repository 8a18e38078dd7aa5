//! What a table of nodes is: which nodes a kernel holds, and what each call makes of them. It has definitions and laws
//! alone, for the table, and for the rules of the requests, which need not stand on the table.
#![tactic(auto)]
