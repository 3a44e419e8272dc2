// [10.11] The office from its first byte on, however the input is cut. There is no code here: specs/ has the sessions, whose steps are what
// the functions of office_serve and office_stream promise, and proofs/WholeInput.antt what is handed to the writer in all of them.
#![tactic(auto)]
