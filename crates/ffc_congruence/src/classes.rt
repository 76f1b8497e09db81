//! Classes of equal ids, and the edges that made them so, the last of which can be taken away.
//!
//! Two forests over the ids. In one each id is below another one of its class, by sizes, so that a root is found in a few steps;
//! it says too which root an id had at an earlier time (Tarjan 1975, without compression). In the other each edge is one that was
//! added, so that the way between two ids says why they are equal (Nieuwenhuis and Oliveras 2005). Besides, the ids of a class are
//! in a circle.
use std::alloc::{AllocError, Global};

/// How many edges had been added.
pub type Time = usize;

/// The next id on a way, and the edge that leads there.
#[derive(Clone, Copy)]
struct Link {
    to: u32,
    edge: usize,
}

/// An edge on a way, and whether the way leads from its first end to its second.
#[derive(Clone, Copy)]
pub struct Step {
    pub edge: usize,
    pub forward: bool,
}

/// An edge: its ends, and the roots of their classes before, of which the first one stayed.
#[derive(Clone, Copy)]
pub struct Edge {
    pub from: u32,
    pub to: u32,
    pub kept: u32,
    pub gone: u32,
}

#[derive(Drop)]
pub struct Classes {
    /// For each id but the roots the one above it, since the edge that put it there.
    above: Vec<Option<Link>>,
    /// For each id the next one on its way along the edges to the end that its class has there.
    beside: Vec<Option<Link>>,
    weights: Vec<u64>,
    /// For each id the next one of its class.
    circle: Vec<u32>,
    edges: Vec<Edge>,
}

fn link_at(links: &[Option<Link>], id: u32) -> Option<Link> {
    match links.get(id as usize) {
        Some(link) => *link,
        None => None,
    }
}

impl Classes {
    /// No ids. It takes no memory.
    pub fn new(alloc: Global) -> Classes {
        Classes {
            above: Vec::new(alloc),
            beside: Vec::new(alloc),
            weights: Vec::new(alloc),
            circle: Vec::new(alloc),
            edges: Vec::new(alloc),
        }
    }

    /// Adds the next id, alone in its class, with a weight. Of two classes the heavier one's root stays.
    pub fn add(&mut self, weight: u64) -> Result<(), AllocError> {
        let id = u32::try_from(self.circle.len()).unwrap_or(u32::MAX);
        self.above.push(None)?;
        self.beside.push(None)?;
        self.weights.push(weight)?;
        self.circle.push(id)?;
        Ok(())
    }

    /// Takes the ids from this one on away, which are alone in their classes.
    pub fn truncate(&mut self, count: usize) {
        self.above.truncate(count);
        self.beside.truncate(count);
        self.weights.truncate(count);
        self.circle.truncate(count);
    }

    /// How many edges there are.
    pub fn now(&self) -> Time {
        self.edges.len()
    }

    /// The ends of an edge.
    pub fn ends(&self, edge: usize) -> Option<(u32, u32)> {
        let edge = self.edges.get(edge)?;
        Some((edge.from, edge.to))
    }

    /// The root of an id's class at a time.
    pub fn root_at(&self, id: u32, time: Time) -> u32 {
        let mut root = id;
        // A class is at most as high as its weight has digits.
        for _ in 0..=u64::BITS {
            match link_at(&self.above, root) {
                Some(link) if link.edge < time => root = link.to,
                _ => break,
            }
        }
        root
    }

    /// The root of an id's class.
    pub fn root(&self, id: u32) -> u32 {
        self.root_at(id, usize::MAX)
    }

    /// The next id of a class.
    pub fn next(&self, id: u32) -> u32 {
        self.circle.get(id as usize).copied().unwrap_or(id)
    }

    fn weight(&self, root: u32) -> u64 {
        self.weights.get(root as usize).copied().unwrap_or(0)
    }

    /// Adds an edge between two ids of different classes. In the circle the ids of the class whose root does not stay come just
    /// after the root that does.
    pub fn join(&mut self, a: u32, b: u32) -> Result<Edge, AllocError> {
        let number = self.edges.len();
        let (first, second) = (self.root(a), self.root(b));
        let first_stays = self.weight(first) >= self.weight(second);
        let edge = Edge {
            from: a,
            to: b,
            kept: if first_stays { first } else { second },
            gone: if first_stays { second } else { first },
        };
        self.edges.push(edge)?;
        if first_stays {
            self.turn(b, a, number);
        } else {
            self.turn(a, b, number);
        }
        self.put_below(edge.gone, edge.kept, number);
        self.swap_next(edge.kept, edge.gone);
        Ok(edge)
    }

    fn put_below(&mut self, root: u32, other: u32, edge: usize) {
        let weight = self.weight(root);
        if let Some(link) = self.above.get_mut(root as usize) {
            *link = Some(Link { to: other, edge });
        }
        if let Some(sum) = self.weights.get_mut(other as usize) {
            *sum = sum.saturating_add(weight);
        }
    }

    /// Makes one circle of two, or two of one.
    fn swap_next(&mut self, one: u32, other: u32) {
        let (first, second) = (self.next(one), self.next(other));
        if let Some(next) = self.circle.get_mut(one as usize) {
            *next = second;
        }
        if let Some(next) = self.circle.get_mut(other as usize) {
            *next = first;
        }
    }

    /// Takes the last edge away.
    pub fn part(&mut self) -> Option<Edge> {
        let edge = self.edges.pop()?;
        let number = self.edges.len();
        self.swap_next(edge.kept, edge.gone);
        let weight = self.weight(edge.gone);
        if let Some(sum) = self.weights.get_mut(edge.kept as usize) {
            *sum = sum.saturating_sub(weight);
        }
        if let Some(link) = self.above.get_mut(edge.gone as usize) {
            *link = None;
        }
        self.cut(edge.from, number);
        self.cut(edge.to, number);
        Some(edge)
    }

    /// Ends the way of an id there, where it leads along an edge.
    fn cut(&mut self, id: u32, edge: usize) {
        if let Some(place) = self.beside.get_mut(id as usize) {
            if let Some(link) = *place {
                if link.edge == edge {
                    *place = None;
                }
            }
        }
    }

    /// Turns the way of an id around, and leads it to another one by an edge.
    fn turn(&mut self, id: u32, to: u32, edge: usize) {
        let mut at = id;
        let mut next = Link { to, edge };
        for _ in 0..self.beside.len() {
            let Some(place) = self.beside.get_mut(at as usize) else {
                break;
            };
            let before = *place;
            *place = Some(next);
            let Some(link) = before else {
                break;
            };
            next = Link {
                to: at,
                edge: link.edge,
            };
            at = link.to;
        }
    }

    /// How long the way of an id is.
    fn depth(&self, id: u32) -> usize {
        let mut at = id;
        let mut depth = 0usize;
        for _ in 0..self.beside.len() {
            let Some(link) = link_at(&self.beside, at) else {
                break;
            };
            depth = depth.saturating_add(1);
            at = link.to;
        }
        depth
    }

    /// Whether an id is the first end of an edge.
    fn begins(&self, edge: usize, id: u32) -> bool {
        match self.edges.get(edge) {
            Some(edge) => edge.from == id,
            None => false,
        }
    }

    /// The edges on the way from an id to another one of its class.
    pub fn way(&self, alloc: Global, a: u32, b: u32) -> Result<Vec<Step>, AllocError> {
        let mut steps = Vec::new(alloc);
        let (mut left, mut right) = (a, b);
        let (mut before, mut after) = (self.depth(a), self.depth(b));
        for _ in 0..before.saturating_add(after) {
            if left == right {
                break;
            }
            let from_left = before >= after;
            let at = if from_left { left } else { right };
            let Some(link) = link_at(&self.beside, at) else {
                break;
            };
            steps.push(Step {
                edge: link.edge,
                forward: self.begins(link.edge, at) == from_left,
            })?;
            if from_left {
                left = link.to;
                before = before.saturating_sub(1);
            } else {
                right = link.to;
                after = after.saturating_sub(1);
            }
        }
        Ok(steps)
    }
}
