// Laws of the orders, pages and lists that paper defines: what is listed rises, each claim within reach once; a page goes on where the one
// before it ended; a sound list stays sound, whatever line it takes. There is no code here: proofs/ has the laws, for the crates above to cite.
#![tactic(auto)]
