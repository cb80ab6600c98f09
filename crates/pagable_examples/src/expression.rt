//! A type that holds values of its own type, each one level deeper: sums inside sums.

ghost use Rattle.pagable_examples.specs.Expressions.{IsSum, expression_form, nodes, of_expression, variant_shape};
ghost use Rattle.pagable_traits.specs.{
  Clauses.{Reads, Wrote},
  Meanings.exactly,
  OwnCauses.{reads_memory, writes_deep_or, writes_memory},
};
ghost use Rattle.pagable_value_spec.specs.{Cursor.Is, Outcomes.{IsOutOfMemory, deep_or}, Reading.read, Shape.nested};

use pagable_codec::parts::{read_flag, write_flag};
use pagable_core::WeighHash;
use pagable_flavors::Error;
use pagable_traits::{
    Carried, Env, PagableDeserialize, PagableDeserializer, PagableSerialize, PagableSerializer,
};
use std::alloc::Global;

/// A number, or the sum of two expressions, which are one level deeper. At most 128 levels can be
/// written or read.
#[derive(Drop)]
pub enum Expression {
    Number(u64),
    Sum(Box<Expression>, Box<Expression>),
}

/// An environment without nodes, whose part 0 is an expression.
#[derive(Drop)]
pub struct ExpressionEnv;

impl Env for ExpressionEnv {
    type Node = ();

    type Hash = WeighHash;

    type CtxKey = ();

    type CtxValue = ();

    ghost parts = { λ e. nodes };
}

// Enters a level, writes an expression there, and leaves the level whatever the result is.
#[cycle(writing)]
fn write_nested<S: PagableSerializer<ExpressionEnv>>(
    value: &Expression,
    serializer: &mut S,
) -> Result<(), Error>
    ensures { Wrote ⟦<ExpressionEnv as Env>⟧ S.PagableSerializer (expression_form value.now (nested 0))
        (deep_or IsOutOfMemory) serializer.old serializer.new result }
{
    serializer.enter()?;
    let done = write_variant(value, serializer);
    serializer.leave();
    done
}

// Writes a flag, true for a number and false for a sum, and then the fields.
#[cycle(writing)]
fn write_variant<S: PagableSerializer<ExpressionEnv>>(
    value: &Expression,
    serializer: &mut S,
) -> Result<(), Error>
    ensures { Wrote ⟦<ExpressionEnv as Env>⟧ S.PagableSerializer (expression_form value.now variant_shape)
        (deep_or IsOutOfMemory) serializer.old
        serializer.new result }
{
    match value {
        Expression::Number(number) => {
            write_flag(true, serializer)?;
            number.pagable_serialize(serializer)
        }
        Expression::Sum(left, right) => {
            write_flag(false, serializer)?;
            write_nested(left, serializer)?;
            write_nested(right, serializer)
        }
    }
}

// Enters a level, reads an expression there, and leaves the level whatever the result is.
#[cycle(reading)]
#[tactic(auto, using(crate::proofs::Levels::reading))]
fn read_nested<D: PagableDeserializer<ExpressionEnv>>(
    alloc: Global,
    deserializer: &mut D,
) -> Result<Expression, Error>
    ensures { Reads ⟦<ExpressionEnv as Env>⟧ D.PagableDeserializer IsOutOfMemory (Is of_expression)
        (λ x. read x (nested 0)) deserializer.old deserializer.new result }
{
    deserializer.enter()?;
    let read = read_variant(alloc, deserializer);
    deserializer.leave();
    read
}

// Makes the sum of two expressions.
fn sum_of(alloc: Global, left: Expression, right: Expression) -> Result<Expression, Error>
    ensures { IsSum left right result }
{
    let left = Box::new(alloc, left)?;
    let right = Box::new(alloc, right)?;
    Ok(Expression::Sum(left, right))
}

// Reads a flag, true for a number and false for a sum, and then the fields.
#[cycle(reading)]
#[tactic(auto, unfolding(pagable_value_spec::specs::Reading::read, pagable_value_spec::specs::Reading::read_with), using(pagable_traits::proofs::Parts::reads))]
fn read_variant<D: PagableDeserializer<ExpressionEnv>>(
    alloc: Global,
    deserializer: &mut D,
) -> Result<Expression, Error>
    ensures { Reads ⟦<ExpressionEnv as Env>⟧ D.PagableDeserializer IsOutOfMemory (Is of_expression)
        (λ x. read x variant_shape) deserializer.old
        deserializer.new result }
{
    if read_flag(deserializer)? {
        let number = u64::pagable_deserialize(alloc, deserializer)?;
        return Ok(Expression::Number(number));
    }
    let left = read_nested(alloc, deserializer)?;
    let right = read_nested(alloc, deserializer)?;
    sum_of(alloc, left, right)
}

impl Carried<ExpressionEnv> for Expression {
    ghost shape = { λ e. nested 0 };

    ghost means = { exactly of_expression };
}

impl PagableSerialize<ExpressionEnv> for Expression {
    ghost write_causes = { writes_deep_or writes_memory };

    fn pagable_serialize<S: PagableSerializer<ExpressionEnv>>(
        &self,
        serializer: &mut S,
    ) -> Result<(), Error> {
        write_nested(self, serializer)
    }
}

impl<'de> PagableDeserialize<'de, ExpressionEnv> for Expression {
    ghost read_causes = { reads_memory };

    fn pagable_deserialize<D: PagableDeserializer<ExpressionEnv>>(
        alloc: Global,
        deserializer: &mut D,
    ) -> Result<Self, Error> {
        read_nested(alloc, deserializer)
    }
}
