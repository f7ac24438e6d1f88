// The list that an accepted data or EOF event leaves, made where the list lies.
#![tactic(auto)]

pub mod inner;
