//! What is read of a file for one kernel.

use core_code::tree::Site;
use opencl_tree::tree::{Declaration, Expr, Stmt};
use opencl_tree::types::{Base, Qualifiers};

/// A parameter. One without a name has the site at which that would stand.
#[derive(Drop)]
pub struct Parameter {
    pub site: Site,
    pub name: Option<String>,
    pub base: Base,
    pub qualifiers: Qualifiers,
    pub stars: Vec<Qualifiers>,
    pub dimensions: Vec<Option<Expr>>,
}

/// The head of a function, which stands in front of its body. The sizes are those of its `reqd_work_group_size`, in
/// work-items (OpenCL 1.2, 6.7.2).
#[derive(Drop)]
pub struct Header {
    pub sizes: Option<[u32; 3]>,
    pub base: Base,
    pub qualifiers: Qualifiers,
    pub stars: Vec<Qualifiers>,
    pub site: Site,
    pub name: String,
    pub parameters: Vec<Parameter>,
}

/// A constant of an enumeration, with its number where that is written (C99 6.7.2.2).
#[derive(Drop)]
pub struct Enumerator {
    pub site: Site,
    pub name: String,
    pub value: Option<Expr>,
}

/// A kernel, and in front of it in its file the names of types, the enumerations, each with its constants, and the functions with a body.
#[derive(Drop)]
pub struct KernelText {
    pub header: Header,
    pub body: Vec<Stmt>,
    pub aliases: Vec<Declaration>,
    pub enumerations: Vec<Vec<Enumerator>>,
    pub functions: Vec<(Header, Vec<Stmt>)>,
}
