// Document 01 as definitions, in its own words and order: all of it stands in specs/. There is no code here.
#![tactic(auto)]
