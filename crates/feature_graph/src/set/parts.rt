//! Parts of a set, by the results of a callback.
ghost use Rattle.std.specs.Prelude.{◌≡◌, ◌<◌, [], IfOk, IfErr, length, not, replicate, false, All};
ghost use Rattle.feature_core.specs.Nodes.{nodes};
ghost use Rattle.feature_graph.specs.Parts.{Calls, IsPart, MayCall, MayCallEach, is_yes, says_first, says_second};
ghost use Rattle.feature_graph.specs.Views.{tables_of_graph};
ghost use Rattle.feature_graph.specs.inner.Sorting.{HasCalled, IsPut};

use crate::graph::FeatureGraph;
use crate::graph::metadata::FeatureMetadata;
use crate::link::feature_at;
use crate::set::FeatureSet;
use digraphs::IxBitSet;
use feature_core::Error;
use guppy_packages::DependencyDirection;
use guppy_support::InOrder;
use std::alloc::Global;

/// The result of a callback, which chooses the part that a feature goes to.
trait Answer {
    ghost use Rattle.std.specs.Prelude.{Bool};

    ghost first: { Self → Bool };

    ghost second: { Self → Bool };

    /// Returns true if the feature goes to the first part.
    fn is_first(&self) -> bool
        ensures { result ≡ first self.now };

    /// Returns true if the feature goes to the second part.
    fn is_second(&self) -> bool
        ensures { result ≡ second self.now };
}

impl Answer for bool {
    ghost first = { is_yes };

    ghost second = { not };

    fn is_first(&self) -> bool {
        *self
    }

    fn is_second(&self) -> bool {
        !*self
    }
}

impl Answer for Option<bool> {
    ghost first = { says_first };

    ghost second = { says_second };

    fn is_first(&self) -> bool {
        match self {
            Some(answer) => *answer,
            None => false,
        }
    }

    fn is_second(&self) -> bool {
        match self {
            Some(answer) => !*answer,
            None => false,
        }
    }
}

/// Inserts `node` into `members` if `say` is true.
pub(crate) fn put(members: &mut IxBitSet, node: usize, say: bool)
    requires { node < length members.old }
    ensures { IsPut say node members.old members.new }
{
    if say {
        members.insert(node);
    }
}

/// Calls `f` for one feature.
fn call<'g, A, F: FnMut(FeatureMetadata<'g>) -> A>(f: &mut F, feature: FeatureMetadata<'g>) -> A
    requires { F.pre f.old feature }
    ensures { F.step f.old feature.entry result f.new }
{
    f(feature)
}

/// Calls `f` for the feature of each of the nodes `numbers`, and inserts the nodes into `one` and `other` by the
/// results.
fn call_each<'g, A: Answer + Drop, F: FnMut(FeatureMetadata<'g>) -> A>(
    graph: FeatureGraph<'g>,
    mut numbers: InOrder<'_>,
    f: &mut F,
    one: &mut IxBitSet,
    other: &mut IxBitSet,
)
    requires callable { MayCallEach F.pre F.step (tables_of_graph graph) numbers f.old }
    requires within { All (λ n. n < length (nodes (tables_of_graph graph))) numbers }
    requires one { one.old ≡ replicate (length (nodes (tables_of_graph graph))) false }
    requires other { other.old ≡ replicate (length (nodes (tables_of_graph graph))) false }
    ensures { HasCalled F.step A.first A.second (tables_of_graph graph.entry) numbers.entry [] f.old f.new one.new other.new }
{
    while let Some(node) = numbers.next() {
        let answer = call(f, feature_at(graph, node));
        put(one, node, answer.is_first());
        put(other, node, answer.is_second());
    }
}

impl<'g> FeatureSet<'g> {
    /// Returns an empty bit set with one bit for each feature of this set's graph.
    fn empty_part(&self, alloc: Global) -> Result<IxBitSet, Error<'static>>
        ensures empty { IfOk result (λ part. part ≡ replicate (length (nodes self.now.graph.tables)) false) }
        ensures refused { IfErr result (λ e. e ≡ Error.Memory) }
    {
        let part = IxBitSet::empty(alloc, self.members.size())?;
        Ok(part)
    }

    /// Returns the features of the first part and those of the second. Calls `f` as `filter` does.
    fn parted<A: Answer + Drop, F: FnMut(FeatureMetadata<'g>) -> A>(
        &self,
        alloc: Global,
        direction: DependencyDirection,
        f: &mut F,
    ) -> Result<(FeatureSet<'g>, FeatureSet<'g>), Error<'g>>
        requires { MayCall F.pre F.step direction self.now f.old }
        ensures called { IfOk result (λ parts. Calls F.step direction self.now f.old f.new (λ calls. IsPart A.first calls self.now parts.0 × IsPart A.second calls self.now parts.1)) }
        ensures refused { IfErr result (λ e. e ≡ Error.Memory) }
        ensures untouched { IfErr result (λ _. f.new ≡ f.old) }
    {
        let mut one = self.empty_part(alloc)?;
        let mut other = self.empty_part(alloc)?;
        let numbers = self.nodes_in_order(direction);
        call_each(self.graph, numbers, f, &mut one, &mut other);
        Ok((
            FeatureSet::new(self.graph, one),
            FeatureSet::new(self.graph, other),
        ))
    }

    /// Returns the features for which `f` returns true. Calls `f` once for each feature of the set, in the order of
    /// `features`, after all allocations. `f` need not be callable for other features. `Memory` is the only error, and
    /// then `f` wasn't called.
    pub fn filter<F: FnMut(FeatureMetadata<'g>) -> bool>(
        &self,
        alloc: Global,
        direction: DependencyDirection,
        f: &mut F,
    ) -> Result<FeatureSet<'g>, Error<'g>>
        requires { MayCall F.pre F.step direction self.now f.old }
        ensures called { IfOk result (λ set. Calls F.step direction self.now f.old f.new (λ calls. IsPart is_yes calls self.now set)) }
        ensures refused { IfErr result (λ e. e ≡ Error.Memory) }
        ensures untouched { IfErr result (λ _. f.new ≡ f.old) }
    {
        let (kept, _) = self.partition(alloc, direction, f)?;
        Ok(kept)
    }

    /// Returns the features for which `f` returns true, and those for which it returns false. Calls `f` as `filter`
    /// does.
    pub fn partition<F: FnMut(FeatureMetadata<'g>) -> bool>(
        &self,
        alloc: Global,
        direction: DependencyDirection,
        f: &mut F,
    ) -> Result<(FeatureSet<'g>, FeatureSet<'g>), Error<'g>>
        requires { MayCall F.pre F.step direction self.now f.old }
        ensures called { IfOk result (λ parts. Calls F.step direction self.now f.old f.new (λ calls. IsPart is_yes calls self.now parts.0 × IsPart not calls self.now parts.1)) }
        ensures refused { IfErr result (λ e. e ≡ Error.Memory) }
        ensures untouched { IfErr result (λ _. f.new ≡ f.old) }
    {
        self.parted(alloc, direction, f)
    }

    /// Returns the features for which `f` returns `Some(true)`, and those for which it returns `Some(false)`. The
    /// features with `None` are in neither. Calls `f` as `filter` does.
    pub fn filter_partition<F: FnMut(FeatureMetadata<'g>) -> Option<bool>>(
        &self,
        alloc: Global,
        direction: DependencyDirection,
        f: &mut F,
    ) -> Result<(FeatureSet<'g>, FeatureSet<'g>), Error<'g>>
        requires { MayCall F.pre F.step direction self.now f.old }
        ensures called { IfOk result (λ parts. Calls F.step direction self.now f.old f.new (λ calls. IsPart says_first calls self.now parts.0 × IsPart says_second calls self.now parts.1)) }
        ensures refused { IfErr result (λ e. e ≡ Error.Memory) }
        ensures untouched { IfErr result (λ _. f.new ≡ f.old) }
    {
        self.parted(alloc, direction, f)
    }
}
