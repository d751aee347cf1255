//! How many names a kernel declares.

ghost use Rattle.std.specs.Prelude.{◌≡◌};
ghost use Rattle.syntax.specs.View.{first, statement, statements, parameter};
ghost use Rattle.core_code.specs.View.{site as site_of};
ghost use Rattle.parser.specs.Counted.{counts, Counts as CountsAre, parameters};
ghost use Rattle.texts.specs.Limits as limits;

use core_code::tree::Site;
use syntax::tree::{First, Parameter, Stmt};

/// The numbers of names of each sort that are declared so far.
#[derive(Clone, Copy)]
pub struct Counts {
    pub buffers: u32,
    pub variables: u32,
    pub arrays: u32,
}

fn one_buffer(so_far: Counts, site: Site) -> Result<Counts, Site>
    ensures { CountsAre result (limits.one_buffer (counts so_far) (site_of site)) }
{
    if so_far.buffers < 16 {
        Ok(Counts {
            buffers: so_far.buffers + 1,
            ..so_far
        })
    } else {
        Err(site)
    }
}

fn one_variable(so_far: Counts, site: Site) -> Result<Counts, Site>
    ensures { CountsAre result (limits.one_variable (counts so_far) (site_of site)) }
{
    if so_far.variables < 64 {
        Ok(Counts {
            variables: so_far.variables + 1,
            ..so_far
        })
    } else {
        Err(site)
    }
}

fn one_array(so_far: Counts, site: Site) -> Result<Counts, Site>
    ensures { CountsAre result (limits.one_array (counts so_far) (site_of site)) }
{
    if so_far.arrays < 16 {
        Ok(Counts {
            arrays: so_far.arrays + 1,
            ..so_far
        })
    } else {
        Err(site)
    }
}

fn count_parameter(so_far: Counts, p: &Parameter) -> Result<Counts, Site>
    ensures { CountsAre result (limits.count_parameter (counts so_far) (parameter p.now)) }
{
    match p {
        Parameter::Buffer { name_site, .. } => one_buffer(so_far, *name_site),
        Parameter::Value { name_site, .. } => one_variable(so_far, *name_site),
    }
}

/// The counts of declared names with those of the parameters; an error with the site of the first one too many.
pub fn count_parameters(so_far: Counts, list: &[Parameter]) -> Result<Counts, Site>
    ensures { CountsAre result (limits.count_parameters (counts so_far) (parameters list.now)) }
{
    let mut counted = so_far;
    for p in list {
        counted = count_parameter(counted, p)?;
    }
    Ok(counted)
}

fn count_first(so_far: Counts, part: &First) -> Result<Counts, Site>
    ensures { CountsAre result (limits.count_first (counts so_far) (first part.now)) }
{
    match part {
        First::Declares(declared) => one_variable(so_far, declared.name_site),
        First::Assigns(_) => Ok(so_far),
    }
}

/// The counts of declared names with those of statements; an error with the site of the first one too many.
#[cycle(counts)]
pub fn count_statements(so_far: Counts, body: &[Stmt]) -> Result<Counts, Site>
    ensures { CountsAre result (limits.count_statements (counts so_far) (statements body.now)) }
{
    let mut counted = so_far;
    for s in body {
        counted = count_statement(counted, s)?;
    }
    Ok(counted)
}

#[cycle(counts)]
fn count_statement(so_far: Counts, s: &Stmt) -> Result<Counts, Site>
    ensures { CountsAre result (limits.count_statement (counts so_far) (statement s.now)) }
{
    match s {
        Stmt::Declare(declared) => one_variable(so_far, declared.name_site),
        Stmt::DeclareArray { name_site, .. } => one_array(so_far, *name_site),
        Stmt::Assign(_) | Stmt::Barrier { .. } | Stmt::Jump { .. } => Ok(so_far),
        Stmt::If { taken, skipped, .. } => {
            let middle = count_statements(so_far, taken.as_slice())?;
            count_statements(middle, skipped.as_slice())
        }
        Stmt::While { body, .. } => count_statements(so_far, body.as_slice()),
        Stmt::Block { body, .. } => count_statements(so_far, body.as_slice()),
        Stmt::For { first, body, .. } => {
            let begun = count_first(so_far, first)?;
            count_statements(begun, body.as_slice())
        }
    }
}
