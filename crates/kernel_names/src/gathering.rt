//! A tree, gone over for its map of names.

ghost use Rattle.std.specs.Prelude.{◌≡◌, ◌<◌, ◌+◌, ◌^◌, OnOk, IfOk};
ghost use Rattle.core_code.specs.View.{site as site_seen};
ghost use Rattle.syntax.specs.View.{declaration as declaration_seen, first as first_seen, statement as statement_seen, statements as statements_seen, kernel as tree_seen};
ghost use Rattle.kernel_names.specs.NameMap as maps;
ghost use Rattle.kernel_names.specs.View.{sort as sort_seen, names_seen};

use crate::copied::copies_of;
use crate::numbers::last_among;
use crate::{LocalName, NameMap, Sort, Standing, Variable};
use core_code::tree::Site;
use std::alloc::{AllocError, Global};
use syntax::tree::{Declaration, First, Kernel, Stmt};

impl NameMap {
    fn push_statement(
        &mut self,
        number: u32,
        site: Site,
        sort: Sort,
        last: u32,
    ) -> Result<(), AllocError>
        ensures { OnOk result
            (names_seen self.new ≡ maps.with_statement number (site_seen site) (sort_seen sort) last (names_seen self.old)) }
    {
        self.statements.push(Standing {
            number,
            site,
            sort,
            last,
        })?;
        Ok(())
    }

    fn push_array(&mut self, alloc: Global, name: &str, site: Site) -> Result<(), AllocError>
        ensures { OnOk result (names_seen self.new ≡ maps.with_array name.now (site_seen site) (names_seen self.old)) }
    {
        let name = String::from_str(alloc, name)?;
        self.arrays.push(LocalName { name, site })?;
        Ok(())
    }

    fn push_variable(
        &mut self,
        alloc: Global,
        declaration: &Declaration,
        first: u32,
        last: u32,
    ) -> Result<(), AllocError>
        ensures { OnOk result (names_seen self.new ≡ maps.with_variable (declaration_seen declaration.now).name
            (declaration_seen declaration.now).name_site first last (names_seen self.old)) }
    {
        let name = String::from_str(alloc, declaration.name.as_str())?;
        self.variables.push(Variable {
            name,
            site: declaration.name_site,
            first,
            last,
        })?;
        Ok(())
    }
}

/// Takes up a declaration in a block that ends with the number `last`.
fn with_declaration(
    alloc: Global,
    declaration: &Declaration,
    last: u32,
    map: &mut NameMap,
) -> Result<(), AllocError>
    ensures { OnOk result (names_seen map.new ≡ maps.with_declaration (declaration_seen declaration.now) last (names_seen map.old)) }
{
    let number = declaration.number;
    map.push_statement(number, declaration.site, Sort::Other, number)?;
    let Some(first) = number.checked_add(1) else {
        return Err(AllocError);
    };
    map.push_variable(alloc, declaration, first, last)
}

/// Takes up the first part of a `for` of a number, which ends with the number `last`.
fn with_first(
    alloc: Global,
    first: &First,
    number: u32,
    last: u32,
    map: &mut NameMap,
) -> Result<(), AllocError>
    ensures { OnOk result (names_seen map.new ≡ maps.with_first (first_seen first.now) number last (names_seen map.old)) }
{
    match first {
        First::Declares(declaration) => {
            map.push_statement(
                declaration.number,
                declaration.site,
                Sort::Other,
                declaration.number,
            )?;
            map.push_variable(alloc, declaration, number, last)
        }
        First::Assigns(assignment) => map.push_statement(
            assignment.number,
            assignment.site,
            Sort::Other,
            assignment.number,
        ),
    }
}

/// Takes up a statement with all that is in it, in a block that ends with the number `last`.
#[cycle(gathering)]
fn with_all_in(
    alloc: Global,
    statement: &Stmt,
    last: u32,
    map: &mut NameMap,
) -> Result<(), AllocError>
    ensures { OnOk result (names_seen map.new ≡ maps.with_all_in (statement_seen statement.now) last (names_seen map.old)) }
{
    match statement {
        Stmt::Declare(declaration) => with_declaration(alloc, declaration, last, map),
        Stmt::Assign(assignment) => map.push_statement(
            assignment.number,
            assignment.site,
            Sort::Other,
            assignment.number,
        ),
        Stmt::DeclareArray {
            number,
            site,
            name_site,
            name,
            ..
        } => {
            map.push_statement(*number, *site, Sort::Other, *number)?;
            map.push_array(alloc, name.as_str(), *name_site)
        }
        Stmt::Barrier { number, site, .. } => map.push_statement(
            *number,
            *site,
            Sort::Waiting,
            *number,
        ),
        Stmt::Jump { number, site, .. } => map.push_statement(*number, *site, Sort::Other, *number),
        Stmt::If {
            number,
            site,
            taken,
            skipped,
            ..
        } => {
            let middle = last_among(taken.as_slice(), *number);
            let end = last_among(skipped.as_slice(), middle);
            map.push_statement(*number, *site, Sort::Other, end)?;
            with_all(alloc, taken.as_slice(), middle, map)?;
            with_all(alloc, skipped.as_slice(), end, map)
        }
        Stmt::While {
            number,
            site,
            body,
            ..
        } => {
            let end = last_among(body.as_slice(), *number);
            map.push_statement(*number, *site, Sort::Turning, end)?;
            with_all(alloc, body.as_slice(), end, map)
        }
        Stmt::Block {
            number,
            site,
            body,
            ..
        } => {
            let end = last_among(body.as_slice(), *number);
            map.push_statement(*number, *site, Sort::Other, end)?;
            with_all(alloc, body.as_slice(), end, map)
        }
        Stmt::For {
            number,
            site,
            first,
            update,
            body,
            ..
        } => {
            let end = last_among(body.as_slice(), update.number);
            map.push_statement(*number, *site, Sort::Turning, end)?;
            with_first(alloc, first, *number, end, map)?;
            map.push_statement(update.number, update.site, Sort::Other, update.number)?;
            with_all(alloc, body.as_slice(), end, map)
        }
    }
}

/// Takes up the statements of a block that ends with the number `last`.
#[cycle(gathering)]
fn with_all(alloc: Global, body: &[Stmt], last: u32, map: &mut NameMap) -> Result<(), AllocError>
    ensures { OnOk result (names_seen map.new ≡ maps.with_all (statements_seen body.now) last (names_seen map.old)) }
{
    for statement in body {
        with_all_in(alloc, statement, last, map)?;
    }
    Ok(())
}

/// The map of a kernel's names, or want of memory.
#[tactic(auto, unfolding(crate::specs::NameMap::names_of))]
pub fn names_of(alloc: Global, kernel: &Kernel) -> Result<NameMap, AllocError>
    ensures { IfOk result (λ m. names_seen m ≡ maps.names_of (tree_seen kernel.now)) }
{
    let parameters = copies_of(alloc, kernel.parameters.as_slice())?;
    let mut map = NameMap {
        parameters,
        variables: Vec::new(alloc),
        arrays: Vec::new(alloc),
        statements: Vec::new(alloc),
    };
    let last = last_among(kernel.body.as_slice(), 0);
    with_all(alloc, kernel.body.as_slice(), last, &mut map)?;
    Ok(map)
}
