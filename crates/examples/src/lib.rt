// The starred examples of document 01, and two lists, are proved of the definitions: specs/Starred.antt and specs/Lists.antt are the tables.
#![tactic(auto)]
