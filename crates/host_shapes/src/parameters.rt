//! Parameters of OpenCL C by their types.

ghost use Rattle.std.specs.Prelude.{◌≡◌, [], IfOk, OnOk, map};
ghost use Rattle.launch_text.specs.View.{local};
ghost use Rattle.opencl_files.specs.View.{kernel_text as text_seen, maybe_name, parameter as parameter_seen};
ghost use Rattle.opencl_terms.specs.Answers.{value_type};
ghost use Rattle.opencl_terms.specs.View.{scalar as scalar_seen};
ghost use Rattle.opencl_tree.specs.View.{declaration as declaration_seen, declarator as declarator_seen, maybe, qualifiers as qualifiers_seen, space_of};
ghost use Rattle.opencl_values.specs.View.{bindings};
ghost use Rattle.opencl_reading.specs.FileTypes as file_types;
ghost use Rattle.host_shapes.specs.Meant.{all_meant, maybe_meant};
ghost use Rattle.host_shapes.specs.Types as rules;
ghost use Rattle.host_shapes.specs.View.{element as element_seen, maybe_element};

use host_launches::{Element, Scalar, Shape};
use launch_text::head::LocalCount;
use opencl_files::tree::{KernelText, Parameter};
use opencl_terms::scalars::{Scalar as TypedScalar, ValueType};
use opencl_tree::tree::{Declaration, Declarator, Expr};
use opencl_tree::types::{Qualifiers, Space};
use opencl_values::error::ValueError;
use opencl_values::names::type_of_base;
use opencl_values::scope::{Binding, Meaning};
use std::alloc::{AllocError, Global};

fn scalar_of(of: TypedScalar) -> Option<Scalar>
    ensures { result ≡ rules.scalar_of (scalar_seen of) }
{
    match of {
        TypedScalar::Char => Some(Scalar::Char),
        TypedScalar::Uchar => Some(Scalar::Uchar),
        TypedScalar::Short => Some(Scalar::Short),
        TypedScalar::Ushort => Some(Scalar::Ushort),
        TypedScalar::Int => Some(Scalar::Int),
        TypedScalar::Uint => Some(Scalar::Uint),
        TypedScalar::Float => Some(Scalar::Float),
        TypedScalar::Long => Some(Scalar::Long),
        TypedScalar::Boolean | TypedScalar::Size => None,
    }
}

fn element_in(of: ValueType) -> Option<Element>
    ensures { maybe_element result ≡ rules.element_in (value_type of) }
{
    let scalar = scalar_of(of.scalar)?;
    if of.width <= 16 {
        Some(Element {
            scalar,
            width: of.width,
        })
    } else {
        None
    }
}

fn element_of(visible: &[Binding<'_>], parameter: &Parameter) -> Result<Option<Element>, AllocError>
    ensures { IfOk result (λ e. maybe_element e ≡ rules.element_of (bindings visible.now) (parameter_seen parameter.now)) }
{
    match type_of_base(visible, &parameter.base, parameter.site) {
        Ok(of) => Ok(element_in(of)),
        Err(ValueError::At { .. }) => Ok(None),
        Err(ValueError::Memory) => Err(AllocError),
    }
}

fn count_among(locals: &[LocalCount<'_>], name: &str) -> Option<u32>
    ensures { result ≡ rules.count_among (map local locals.now) name.now }
{
    for local in locals {
        if local.name == name {
            return Some(local.count);
        }
    }
    None
}

fn count_of(locals: &[LocalCount<'_>], name: &Option<String>) -> Option<u32>
    ensures { result ≡ rules.count_of (map local locals.now) (maybe_name name.now) }
{
    match name {
        Some(name) => count_among(locals, name.as_str()),
        None => None,
    }
}

fn local_with(element: Element, count: Option<u32>) -> Option<Shape>
    ensures { maybe_meant result ≡ rules.local_with (element_seen element) count }
{
    match count {
        Some(count) => Some(Shape::Local {
            element: Element {
                scalar: element.scalar,
                width: 1,
            },
            count,
        }),
        None => None,
    }
}

fn value_in(element: Element, space: Option<Space>) -> Option<Shape>
    ensures { maybe_meant result ≡ rules.value_in (element_seen element) (space_of space) }
{
    match space {
        None => Some(Shape::Value(element)),
        Some(Space::Private) => Some(Shape::Value(element)),
        Some(Space::Global) | Some(Space::Constant) | Some(Space::Local) => None,
    }
}

fn pointer_in(
    locals: &[LocalCount<'_>],
    parameter: &Parameter,
    element: Element,
    space: Option<Space>,
) -> Option<Shape>
    ensures { maybe_meant result ≡ rules.pointer_in (map local locals.now) (parameter_seen parameter.now) (element_seen element) (space_of space) }
{
    match space {
        None => None,
        Some(Space::Private) => None,
        Some(Space::Global) => Some(Shape::Buffer(element)),
        Some(Space::Constant) => Some(Shape::Buffer(element)),
        Some(Space::Local) => local_with(element, count_of(locals, &parameter.name)),
    }
}

fn by_stars(locals: &[LocalCount<'_>], parameter: &Parameter, element: Element) -> Option<Shape>
    ensures { maybe_meant result ≡ rules.by_stars (map local locals.now) (parameter_seen parameter.now) (element_seen element) }
{
    let space = parameter.qualifiers.space;
    if parameter.stars.len() == 0 {
        value_in(element, space)
    } else if parameter.stars.len() == 1 {
        pointer_in(locals, parameter, element, space)
    } else {
        None
    }
}

fn shape_with(locals: &[LocalCount<'_>], parameter: &Parameter, element: Element) -> Option<Shape>
    ensures { maybe_meant result ≡ rules.shape_with (map local locals.now) (parameter_seen parameter.now) (element_seen element) }
{
    if parameter.dimensions.len() == 0 {
        by_stars(locals, parameter, element)
    } else {
        None
    }
}

fn shape_of(
    visible: &[Binding<'_>],
    locals: &[LocalCount<'_>],
    parameter: &Parameter,
) -> Result<Option<Shape>, AllocError>
    ensures { IfOk result (λ s. maybe_meant s ≡ rules.shape_of (bindings visible.now) (map local locals.now) (parameter_seen parameter.now)) }
{
    match element_of(visible, parameter)? {
        Some(element) => Ok(shape_with(locals, parameter, element)),
        None => Ok(None),
    }
}

fn is_plain(qualifiers: Qualifiers, stars: &[Qualifiers], dimensions: &[Option<Expr>]) -> bool
    ensures { result ≡ file_types.is_plain (qualifiers_seen qualifiers) (map qualifiers_seen stars.now) (map maybe dimensions.now) }
{
    stars.is_empty() && dimensions.is_empty() && !qualifiers.constant && qualifiers.space.is_none()
}

// Takes up the name of a type, where it can be meant.
fn push_name<'a>(
    declaration: &Declaration,
    declarator: &'a Declarator,
    visible: &mut Vec<Binding<'a>>,
) -> Result<(), AllocError>
    ensures { OnOk result (bindings visible.new.items ≡ file_types.with_name (declaration_seen declaration.now) (declarator_seen declarator.now) (bindings visible.old.items)) }
{
    if !is_plain(
        declaration.qualifiers,
        &declarator.stars,
        &declarator.dimensions,
    ) {
        return Ok(());
    }
    match type_of_base(visible, &declaration.base, declaration.site) {
        Ok(of) => {
            visible.push(Binding {
                name: declarator.name.as_str(),
                meaning: Meaning::Type(of),
            })?;
            Ok(())
        }
        Err(ValueError::At { .. }) => Ok(()),
        Err(ValueError::Memory) => Err(AllocError),
    }
}

fn push_declarators<'a>(
    declaration: &'a Declaration,
    visible: &mut Vec<Binding<'a>>,
) -> Result<(), AllocError>
    ensures { OnOk result (bindings visible.new.items ≡ file_types.with_declarators (declaration_seen declaration.now) (declaration_seen declaration.now).declarators (bindings visible.old.items)) }
{
    for declarator in &declaration.declarators {
        push_name(declaration, declarator, visible)?;
    }
    Ok(())
}

fn aliases(alloc: Global, declarations: &[Declaration]) -> Result<Vec<Binding<'_>>, AllocError>
    ensures { IfOk result (λ bs. bindings bs.items ≡ file_types.with_aliases (map declaration_seen declarations.now) []) }
{
    let mut visible = Vec::new(alloc);
    for declaration in declarations {
        push_declarators(declaration, &mut visible)?;
    }
    Ok(visible)
}

fn shapes_with(
    alloc: Global,
    visible: &[Binding<'_>],
    locals: &[LocalCount<'_>],
    parameters: &[Parameter],
) -> Result<Option<Vec<Shape>>, AllocError>
    ensures { IfOk result (λ s. all_meant s ≡ rules.with_shapes [] (bindings visible.now) (map local locals.now) (map parameter_seen parameters.now)) }
{
    let mut found = Vec::new(alloc);
    for parameter in parameters {
        let Some(shape) = shape_of(visible, locals, parameter)? else {
            return Ok(None);
        };
        found.push(shape)?;
    }
    Ok(Some(found))
}

/// What the parameters of a kernel ask, whose local pointers have these lengths; nothing where one of them cannot be asked for.
pub fn shapes_in(
    alloc: Global,
    text: &KernelText,
    locals: &[LocalCount<'_>],
) -> Result<Option<Vec<Shape>>, AllocError>
    ensures { IfOk result (λ s. all_meant s ≡ rules.shapes_in (map local locals.now) (text_seen text.now)) }
{
    let visible = aliases(alloc, &text.aliases)?;
    shapes_with(alloc, &visible, locals, &text.header.parameters)
}
