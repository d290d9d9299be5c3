//! Laws of the definitions. Each is a function without a body, whose clause is the law.
ghost use Rattle.bad_stores.specs.Laws.{AdminRefusesBadStores, ServeRefusesBadStores};

/// `admin` refuses a store that is told exactly where a row of it is none that can be, and names the first.
#[tactic(auto, using(crate::proofs::Refusing::admin_refuses))]
pub fn admin_refuses_bad_stores()
    ensures { AdminRefusesBadStores }
{}

/// `serve` refuses a store that is told exactly where a row of it is none that can be, and names the first.
#[tactic(auto, using(crate::proofs::Refusing::serve_refuses))]
pub fn serve_refuses_bad_stores()
    ensures { ServeRefusesBadStores }
{}
