// The CSR instructions: csrrw, csrrs, csrrc and their immediate forms.
#![tactic(auto)]

pub mod operation;
