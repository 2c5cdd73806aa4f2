// What a step makes of a record (document 01, 'A water step'), as definitions with their laws; no function stands here. The call is in `stepping`.
#![tactic(auto)]
