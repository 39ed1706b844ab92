// The layout that the product uses.
ghost use Rattle.layout.specs.Product.{HeadedProduct, ProductShapes, SmallHeaders};
ghost use Rattle.layout.specs.Product.{product_table, product_code};

use crate::array::Array;
use crate::pair::Pair;
use crate::record::Record;
use crate::{Layout, Shape};

/// Records are kind 0 and arrays kind 1.
pub type Product = Pair<Record, Array>;

/// The header word of a shape of the product, whose shapes are told number by number here.
#[tactic(auto, using(crate::proofs::Products::product_shapes, crate::proofs::Products::small_headers))]
pub fn product_header(shape: Shape) -> Option<u32>
    ensures answer { HeadedProduct shape result }
    ensures shapes { ProductShapes product_table product_code }
    ensures small { SmallHeaders }
{
    Product::header(shape)
}
