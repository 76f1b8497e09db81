//! How large the matrix of a degree is.
ghost use Rattle.std.specs.Prelude.{◌≡◌, ◌+◌, ◌-◌, ◌<◌, ◌≤◌, ◌↔◌, All, length, MatchOption, IfSome, IsSome};
ghost use Rattle.ffc_field.specs.Binomial.{choose};
ghost use Rattle.ffc_bounds.specs.Monomials.{columns, rows};

/// How many columns, and how many rows, a matrix has at most.
pub const MOST: u32 = 4096;

/// How many monomials there are in so many variables up to a degree, by the quotients of neighboring binomial coefficients.
fn count(variables: usize, degree: u32) -> Option<u32>
    requires { degree ≤ 1024 }
    ensures { MatchOption result (4096 < choose (degree + variables) variables)
        (λ n. (n ≡ choose (degree + variables) variables) × (n ≤ 4096)) }
{
    if degree == 0 {
        return Some(1);
    }
    let mut count = 1;
    for k in 0..variables {
        let next = k as u64 + 1;
        count = count * (u64::from(degree) + next) / next;
        if count > u64::from(MOST) {
            return None;
        }
    }
    Some(count as u32)
}

/// How many columns and how many rows the matrix of this degree has, in these variables and for generators of these degrees,
/// where neither passes 4,096. It takes no memory, and at most a few thousand steps.
pub fn counted(variables: &[u32], degrees: &[u32], degree: u32) -> Option<(u32, u32)>
    requires low { All (λ e. e ≤ degree) degrees.now }
    requires limit { degree ≤ 1024 }
    ensures counts { IfSome result (λ r. (r.0 ≡ columns degree variables.now)
        × (r.1 ≡ rows degree variables.now degrees.now)) }
    ensures exactly { IsSome result
        ↔ ((columns degree variables.now ≤ 4096) × (rows degree variables.now degrees.now ≤ 4096)) }
{
    let Some(columns) = count(variables.len(), degree) else {
        return None;
    };
    let mut rows = 0;
    for each in degrees {
        let Some(more) = count(variables.len(), degree - *each) else {
            return None;
        };
        rows += more;
        if rows > MOST {
            return None;
        }
    }
    Some((columns, rows))
}
