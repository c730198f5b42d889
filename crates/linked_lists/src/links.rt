//! The links between places: what comes before each one, and what after it.

ghost use Rattle.std.specs.Prelude.{◌≡◌, ℕ, ◌∷◌, length, if◌then◌else◌};
ghost use Rattle.std.specs.Vec.{vec_capacity};
ghost use Rattle.linked_lists.specs.Ring.{same, alone as link_alone, link_at, spot_place, after as ring_after, before as ring_before, IsThere};

/// Where a list can lead: to one of its places, or to its end, which comes before the first place
/// and after the last. Their numbers have 32 bits, since links are most of what a long list takes.
#[derive(Clone, Copy, PartialEq, Eq)]
pub(crate) enum Spot {
    /// The end of the list with this number.
    End(u32),
    /// The place with this number, from 1 on.
    Place(u32),
}

/// What comes before a spot and after it.
#[derive(Clone, Copy)]
pub(crate) struct Link {
    pub(crate) before: Spot,
    pub(crate) after: Spot,
}

/// There are no more lists, and no more places, than have numbers.
pub(crate) const MOST: usize = 4_294_967_295;

/// The link of each end and of each place.
#[derive(Drop)]
pub(crate) struct Links {
    /// By the number of the list.
    pub(crate) ends: Vec<Link>,
    /// The place n at the index n - 1.
    pub(crate) places: Vec<Link>,
}

/// The link of a spot that is by itself.
pub(crate) fn alone(spot: Spot) -> Link
    ensures { result ≡ link_alone spot }
{
    Link {
        before: spot,
        after: spot,
    }
}

/// The place that a spot is, if it isn't an end.
pub(crate) fn place_in(spot: Spot) -> Option<usize>
    ensures { result ≡ spot_place spot }
{
    match spot {
        Spot::Place(place) => Some(place as usize),
        Spot::End(_) => None,
    }
}

impl Links {
    /// What comes before and after a spot.
    #[inline(always)]
    pub(crate) fn link(&self, spot: Spot) -> Link
        requires { IsThere (length self.now.ends.items) (length self.now.places.items) spot }
        ensures { result ≡ link_at self.now.ends.items self.now.places.items spot }
    {
        match spot {
            Spot::End(list) => self.ends[list as usize],
            Spot::Place(place) => self.places[place as usize - 1],
        }
    }

    /// Gives a spot another link.
    #[inline(always)]
    pub(crate) fn write(&mut self, spot: Spot, link: Link)
        requires { IsThere (length self.old.ends.items) (length self.old.places.items) spot }
        ensures links { (p : Spot) → link_at self.new.ends.items self.new.places.items p
            ≡ (if same p spot then link else link_at self.old.ends.items self.old.places.items p) }
        ensures lists { length self.new.ends.items ≡ length self.old.ends.items }
        ensures places { length self.new.places.items ≡ length self.old.places.items }
        ensures list_capacity { vec_capacity self.new.ends ≡ vec_capacity self.old.ends }
        ensures capacity { vec_capacity self.new.places ≡ vec_capacity self.old.places }
    {
        match spot {
            Spot::End(list) => self.ends[list as usize] = link,
            Spot::Place(place) => self.places[place as usize - 1] = link,
        }
    }

    /// Puts `next` after a spot.
    #[inline(always)]
    pub(crate) fn set_after(&mut self, spot: Spot, next: Spot)
        requires { IsThere (length self.old.ends.items) (length self.old.places.items) spot }
        ensures after { (p : Spot) → ring_after self.new.ends.items self.new.places.items p
            ≡ (if same p spot then next else ring_after self.old.ends.items self.old.places.items p) }
        ensures before { (p : Spot) → ring_before self.new.ends.items self.new.places.items p
            ≡ ring_before self.old.ends.items self.old.places.items p }
        ensures lists { length self.new.ends.items ≡ length self.old.ends.items }
        ensures places { length self.new.places.items ≡ length self.old.places.items }
        ensures list_capacity { vec_capacity self.new.ends ≡ vec_capacity self.old.ends }
        ensures capacity { vec_capacity self.new.places ≡ vec_capacity self.old.places }
    {
        let link = self.link(spot);
        self.write(
            spot,
            Link {
                after: next,
                ..link
            },
        );
    }

    /// Puts `last` before a spot.
    #[inline(always)]
    pub(crate) fn set_before(&mut self, spot: Spot, last: Spot)
        requires { IsThere (length self.old.ends.items) (length self.old.places.items) spot }
        ensures after { (p : Spot) → ring_after self.new.ends.items self.new.places.items p
            ≡ ring_after self.old.ends.items self.old.places.items p }
        ensures before { (p : Spot) → ring_before self.new.ends.items self.new.places.items p
            ≡ (if same p spot then last else ring_before self.old.ends.items self.old.places.items p) }
        ensures lists { length self.new.ends.items ≡ length self.old.ends.items }
        ensures places { length self.new.places.items ≡ length self.old.places.items }
        ensures list_capacity { vec_capacity self.new.ends ≡ vec_capacity self.old.ends }
        ensures capacity { vec_capacity self.new.places ≡ vec_capacity self.old.places }
    {
        let link = self.link(spot);
        self.write(
            spot,
            Link {
                before: last,
                ..link
            },
        );
    }
}
