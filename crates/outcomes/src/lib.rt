//! Words for what calls answer that read or look for something and may want memory, generic in
//! their fault. The definitions stand in `specs/`.
#![tactic(auto)]
